// Two files, compared by a library.
ghost use Rattle.std.specs.Prelude.{◌≡◌, [], map, IfOk, MatchResult};
ghost use Rattle.model.specs.Calls.{add, asked, outcomes, shown};
ghost use Rattle.pages.specs.declared.comparing.Stop.TheVariants.{Memory};
ghost use Rattle.pages.specs.Pages.{file_tokens, file_ending, plan, calls};
ghost use Rattle.pages.specs.Sides.{side_tokens, side_ending};

use layers::case::Case;
use layers::dropping::DropClass;
use library::plan::Plan;
use library::running::run;
use model::calls::{Answer, Call};
use model::fingerprint::Fingerprint;
use model::passage::Passage;
use model::refusal::Refusal;
use prints::polynomial::Polynomial;
use prints::window::Placed;
use std::alloc::{AllocError, Global};
use tokens::prose::Prose;
use tokens::token::Token;

// Why two files could not be compared. `Plan` is never answered, as the contract of `compared` says, since 3 and 5 are a plan;
// to hand it on is plainer than an `unreachable()` in its place.
#[derive(Drop)]
pub enum Stop {
    Memory,
    Plan(Refusal),
}

// Written out, since a derived `From` has no contract, and the contracts here name the error that `?` makes.
impl From<AllocError> for Stop {
    ghost from_gives = { λ _ s. s ≡ Memory };

    fn from(_e: AllocError) -> Stop {
        Stop::Memory
    }
}

// A file as prose, without blanks and with small letters.
fn side(file: &[u8]) -> Case<DropClass<Prose<'_>>>
    ensures tokens { side_tokens result ≡ file_tokens file.now }
    ensures ending { side_ending result ≡ file_ending file.now }
{
    Case::over(DropClass::over(Prose::new(file), 1))
}

// An Add of a file, with a work list as long as a window.
fn adding<'a>(
    heap: Global,
    number: u16,
    file: &'a [u8],
) -> Result<Call<Case<DropClass<Prose<'a>>>, u32>, AllocError>
    ensures { IfOk result (λ c. asked side_tokens side_ending c ≡ add number (file_tokens file.now) (file_ending file.now) 3) }
{
    let work = vec![in heap; Placed {
        place: 0,
        value: 0u32
    }; 3]?;
    Ok(Call::Add {
        number,
        source: side(file),
        work,
    })
}

// The files added as 1 and 2, and 1 reported.
fn comparison<'a>(
    heap: Global,
    left: &'a [u8],
    right: &'a [u8],
) -> Result<Vec<Call<Case<DropClass<Prose<'a>>>, u32>>, AllocError>
    ensures { IfOk result (λ v. map (asked side_tokens side_ending) v.items ≡ calls left.now right.now) }
{
    let first = adding(heap, 1, left)?;
    let second = adding(heap, 2, right)?;
    let list = vec![in heap; Passage::default(); 256]?;
    let mut calls = Vec::with_capacity(heap, 3)?;
    calls.push_reserved(first);
    calls.push_reserved(second);
    calls.push_reserved(Call::Report { number: 1, list });
    Ok(calls)
}

// What a library answers to these calls.
pub fn compared<'a>(heap: Global, left: &'a [u8], right: &'a [u8]) -> Result<Vec<Answer>, Stop>
    ensures { MatchResult result (λ v. map shown v.items ≡ outcomes plan [] (calls left.now right.now)) (λ e. e ≡ Memory) }
{
    let plan = Plan::<Polynomial>::new(3, 5).map_err(Stop::Plan)?;
    let mut tokens = vec![in heap; Token::default(); 4096]?;
    let blank = Fingerprint {
        value: 0u32,
        file: 0,
        place: 0,
    };
    let mut index = vec![in heap; blank; 4096]?;
    let calls = comparison(heap, left, right)?;
    let answers = run(
        heap,
        plan,
        tokens.as_mut_slice(),
        index.as_mut_slice(),
        calls,
    )?;
    Ok(answers)
}
