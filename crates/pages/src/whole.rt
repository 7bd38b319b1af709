// The whole page, from what was read.
ghost use Rattle.std.specs.Prelude.{◌≡◌, IfOk, vec_items, MatchResult};
ghost use Rattle.std.specs.Option.{option_map};
ghost use Rattle.model.specs.declared.refusal.Reason.TheVariants.{FileUnread};
ghost use Rattle.model.specs.Refusals.{plain};
ghost use Rattle.pages.specs.declared.comparing.Stop.TheVariants.{Memory};
ghost use Rattle.pages.specs.Pages.{refusal_line, page};

use crate::answered::{page_of, refusal_page};
use crate::comparing::{Stop, compared};
use model::refusal::{Reason, Refusal};
use std::alloc::{AllocError, Global};

// The longest file that is compared, in bytes.
const MOST: usize = 2048;

fn unread_page(heap: Global) -> Result<Vec<u8>, AllocError>
    ensures { IfOk result (λ v. v.items ≡ refusal_line (plain FileUnread)) }
{
    refusal_page(heap, Refusal::plain(Reason::FileUnread))
}

// The page of two files, each of which may be missing.
pub fn page(heap: Global, left: Option<Vec<u8>>, right: Option<Vec<u8>>) -> Result<Vec<u8>, Stop>
    ensures { MatchResult result (λ v. v.items ≡ page (option_map vec_items left) (option_map vec_items right)) (λ e. e ≡ Memory) }
{
    let (Some(left), Some(right)) = (left, right) else {
        return Ok(unread_page(heap)?);
    };
    if left.len() > MOST || right.len() > MOST {
        return Ok(unread_page(heap)?);
    }
    let answers = compared(heap, left.as_slice(), right.as_slice())?;
    Ok(page_of(heap, answers)?)
}
