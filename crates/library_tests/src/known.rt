// What a caller may rest on of a library that it is handed.
ghost use Rattle.std.specs.Prelude.{◌≤◌, length};

use library::library::Library;
use prints::hash::GramHash;

// It holds at most 64 files, and what is used lies within its lists, with no call made.
pub fn handed<H: GramHash>(library: &Library<'_, '_, H>)
    ensures few { length library.now.state.table ≤ 64 }
    ensures within { library.now.state.used ≤ length library.now.state.tokens.now }
{}

fn crosses<T: Send + Sync + Drop>(_value: T) {}

// It may go to another thread wherever the hash's values may, whatever type names the hash.
pub fn sent<H: GramHash>(library: Library<'_, '_, H>)
where
    H::Value: Send + Sync,
{
    crosses(library);
}
