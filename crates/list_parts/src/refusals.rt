// The refusals that a keyword list can meet. Document 01, "Refusal numbers".
ghost use Rattle.std.specs.Prelude.{◌≡◌};
ghost use Rattle.list_parts.specs.Refusals.{char_refusal, list_refusal};

// 2 for a character that is no scalar value.
pub fn refused_char(c: u32) -> u32
    ensures { result ≡ char_refusal c }
{
    if chars::is_scalar(c) {
        return 0;
    }
    2
}

// 7 for a list of over 1,024 code points, or with one that is no scalar value.
pub fn refused_list(list: &[u32]) -> u32
    ensures { result ≡ list_refusal list.now }
{
    if 1024 < list.len() {
        return 7;
    }
    if !chars::all_scalar(list) {
        return 7;
    }
    0
}
