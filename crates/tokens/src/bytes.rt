// Kinds of bytes, by which both readers of files sort them.
ghost use Rattle.std.specs.Prelude.{◌≡◌, ℕ, ◌≤◌, slice_index};
ghost use Rattle.tokens.specs.Bytes.{is_blank, is_letter, is_digit};

pub fn is_blank(b: u8) -> bool
    ensures { result ≡ is_blank b }
{
    matches!(b, 9..=13 | 32)
}

pub fn is_letter(b: u8) -> bool
    ensures { result ≡ is_letter b }
{
    b.is_ascii_alphabetic()
}

pub fn is_digit(b: u8) -> bool
    ensures { result ≡ is_digit b }
{
    b.is_ascii_digit()
}

// Each element of a byte slice is at most 255. A caller whose proof needs that of a slice in a struct calls this
// to be told; the checker knows it of a slice that is lent, so one is lent here.
pub fn are_bytes(file: &[u8])
    ensures { (k : ℕ) → slice_index file.now k ≤ 255 }
{
    let _none = file.is_empty();
}
