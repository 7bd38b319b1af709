// What calls answered, as lines.
ghost use Rattle.std.specs.Prelude.{◌≡◌, ◌≤◌, true, ◌++◌, map, length, take, is_ok, IfOk, if◌then◌else◌};
ghost use Rattle.std.specs.List.{flat_map};
ghost use Rattle.model.specs.Calls.{shown};
ghost use Rattle.pages.specs.Pages.{refusal_line, counts_line, passage_line, lines};

use columns::push_row;
use model::answers::Reported;
use model::calls::Answer;
use model::passage::Passage;
use model::refusal::Refusal;
use std::alloc::{AllocError, Global};

// The columns of each number.
const WIDTH: usize = 12;

// The page of a refusal: one line.
pub fn refusal_page(heap: Global, refusal: Refusal) -> Result<Vec<u8>, AllocError>
    ensures { IfOk result (λ v. v.items ≡ refusal_line refusal) }
{
    let mut out = Vec::new(heap);
    let numbers = [
        0,
        u64::from(u8::from(refusal.reason)),
        u64::from(refusal.place),
        u64::from(refusal.depth),
    ];
    push_row(&mut out, &numbers, WIDTH)?;
    Ok(out)
}

fn push_passage(out: &mut Vec<u8>, x: &Passage) -> Result<(), AllocError>
    ensures { out.new.items ≡ (if is_ok result then out.old.items ++ passage_line x.now else out.old.items) }
{
    let numbers = [
        u64::from(x.other),
        u64::from(x.left),
        u64::from(x.right),
        u64::from(x.len),
        u64::from(x.here.from),
        u64::from(x.here.to),
        u64::from(x.there.from),
        u64::from(x.there.to),
    ];
    push_row(out, &numbers, WIDTH)
}

fn push_passages(out: &mut Vec<u8>, list: &[Passage]) -> Result<(), AllocError>
    ensures { is_ok result ≡ true → out.new.items ≡ out.old.items ++ flat_map passage_line list.now }
{
    for x in list {
        push_passage(out, x)?;
    }
    Ok(())
}

// The page of a report: its counts, and a line for each passage.
fn report_page(heap: Global, counts: Reported, list: &[Passage]) -> Result<Vec<u8>, AllocError>
    ensures { IfOk result (λ v. v.items ≡ counts_line counts ++ flat_map passage_line (take counts.passages list.now)) }
{
    let mut out = Vec::new(heap);
    let numbers = [1, counts.passages as u64, counts.pairs, counts.differing];
    push_row(&mut out, &numbers, WIDTH)?;
    let end = counts.passages.min(list.len());
    push_passages(&mut out, &list[0..end])?;
    Ok(out)
}

// The page of what some calls answered: the first refusal, or else the first report.
pub fn page_of(heap: Global, answers: Vec<Answer>) -> Result<Vec<u8>, AllocError>
    ensures { IfOk result (λ v. v.items ≡ lines (map shown answers.items)) }
{
    for answer in answers {
        match answer {
            Answer::Added(Err(refusal))
            | Answer::Removed(Err(refusal))
            | Answer::Held(Err(refusal), _)
            | Answer::Reported(Err(refusal), _) => return refusal_page(heap, refusal),
            Answer::Reported(Ok(counts), list) => return report_page(heap, counts, list.as_slice()),
            Answer::Added(Ok(_)) | Answer::Removed(Ok(())) | Answer::Held(Ok(_), _) => {}
        }
    }
    Ok(Vec::new(heap))
}
