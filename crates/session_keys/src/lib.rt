// The keys of a session, found by their bytes.

#![tactic(auto)]

ghost use Rattle.std.specs.Prelude.{◌≡◌};
ghost use Rattle.session_keys.specs.Keys.{key_of};

// A key, by what it does; `Big` where words are divided by blanks alone.
#[derive(Clone, Copy)]
pub enum Key {
    Left,
    Right,
    Word,
    Back,
    End,
    BigWord,
    BigBack,
    BigEnd,
    EndBack,
    BigEndBack,
    LineStart,
    FirstNonBlank,
    LineEnd,
    LastNonBlank,
    ParagraphPrev,
    ParagraphNext,
    SectionBackward,
    SectionForward,
    SectionEndBackward,
    SectionEndForward,
    NextLine,
    PrevLine,
    Line,
    Top,
    Bottom,
    Column,
    Bracket,
    Down,
    Up,
    Unknown,
}

// The key of that name, or that it is unknown.
pub fn key_of(name: &[u8]) -> Key
    ensures { result ≡ key_of name.now }
{
    match name {
        b"ge" => Key::EndBack,
        b"gE" => Key::BigEndBack,
        b"g_" => Key::LastNonBlank,
        b"[[" => Key::SectionBackward,
        b"]]" => Key::SectionForward,
        b"[]" => Key::SectionEndBackward,
        b"][" => Key::SectionEndForward,
        b"gg" => Key::Top,
        b"h" => Key::Left,
        b"l" => Key::Right,
        b"w" => Key::Word,
        b"b" => Key::Back,
        b"e" => Key::End,
        b"W" => Key::BigWord,
        b"B" => Key::BigBack,
        b"E" => Key::BigEnd,
        b"0" => Key::LineStart,
        b"^" => Key::FirstNonBlank,
        b"$" => Key::LineEnd,
        b"{" => Key::ParagraphPrev,
        b"}" => Key::ParagraphNext,
        b"+" => Key::NextLine,
        b"-" => Key::PrevLine,
        b"_" => Key::Line,
        b"G" => Key::Bottom,
        b"|" => Key::Column,
        b"%" => Key::Bracket,
        b"j" => Key::Down,
        b"k" => Key::Up,
        _ => Key::Unknown,
    }
}
