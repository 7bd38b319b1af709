// What a source hands out: tokens, and the fault that may end its list.
ghost use Rattle.std.specs.Prelude.{◌≡◌};
ghost use Rattle.tokens.specs.Texts.{file_fault};
ghost use Rattle.tokens.specs.Tokens.{class_number, cause_number, same, sound};

// The largest file, in bytes.
pub const LIMIT: usize = 1_048_576;

// What kind of text a token stands for. `Unused` is the class of an entry of a token list that
// holds no token: all its numbers are 0, and no source hands it out.
#[derive(Clone, Copy, PartialEq, Eq, Default, Debug)]
pub enum Class {
    #[default]
    Unused = 0,
    Blank = 1,
    NameFirst = 2,
    NameFurther = 3,
    Keyword = 4,
    NumberFirst = 5,
    NumberFurther = 6,
    Mark = 7,
    Quoted = 8,
    Comment = 9,
    Made = 10,
}

impl From<Class> for u8 {
    ghost from_gives = { λ class number. number ≡ class_number class };

    fn from(class: Class) -> u8 {
        class as u8
    }
}

// A token covers the bytes of the file from `from` up to, without, `to`. The two stand alone, since most readers ask for one of them.
#[derive(Clone, Copy, PartialEq, Eq, Default, Debug)]
pub struct Token {
    pub code: u16,
    pub class: Class,
    pub from: u32,
    pub to: u32,
}

impl Token {
    // Whether the numbers are in range and cover a byte or more of a file.
    pub fn is_sound(&self) -> bool
        ensures { result ≡ sound self.now }
    {
        (1..=1023).contains(&self.code)
            && self.class != Class::Unused
            && self.from < self.to
            && self.to as usize <= LIMIT
    }

    // Whether two tokens count as equal, which runs and passages are made of.
    pub fn same(&self, other: &Token) -> bool
        ensures { result ≡ same self.now other.now }
    {
        self.code == other.code
    }
}

// Why a source's list ends early. The causes from `Fifth` on are for sources of other crates: all sources answer one type, so that two can
// be summed.
#[derive(Clone, Copy, PartialEq, Eq, Debug)]
pub enum Cause {
    TooLong = 1,
    ZeroByte = 2,
    OpenComment = 3,
    LongName = 4,
    Fifth = 5,
    Sixth = 6,
    Seventh = 7,
    Eighth = 8,
    Ninth = 9,
}

impl From<Cause> for u8 {
    ghost from_gives = { λ cause number. number ≡ cause_number cause };

    fn from(cause: Cause) -> u8 {
        cause as u8
    }
}

// What ended a list early, at which byte of the file, and how many layers above the file it was found.
#[derive(Clone, Copy, PartialEq, Eq, Debug)]
pub struct Fault {
    pub cause: Cause,
    pub place: u32,
    pub depth: u8,
}

impl Fault {
    // A fault found in the file itself, below every layer.
    pub fn in_file(cause: Cause, place: u32) -> Fault
        ensures { result ≡ file_fault cause place }
    {
        Fault {
            cause,
            place,
            depth: 0,
        }
    }
}
