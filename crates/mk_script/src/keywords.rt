//! The first words of lines.
ghost use Rattle.std.specs.Prelude.{◌≡◌, map};
ghost use Rattle.mk_script.specs.Keywords as spec;

/// The first word of a line, which says what form it has.
#[derive(Clone, Copy, PartialEq, Eq)]
pub enum Keyword {
    Heap,
    TypeLine,
    Global,
    Script,
    Ptr,
    Num,
    New,
    Free,
    Getn,
    Setn,
    Getp,
    Setp,
    Casp,
    Lea,
    Move,
    Clear,
    Loadg,
    Storeg,
    Same,
    Isnull,
    Show,
    Const,
    Add,
    Sub,
    Print,
    Repeat,
    If,
    Else,
    End,
}

// The keywords by their length, so that a word is compared with few. Those that most lines begin with come first.

const OF_TWO: [(&[u8], Keyword); 1] = [(b"if", Keyword::If)];

const OF_THREE: [(&[u8], Keyword); 7] = [
    (b"add", Keyword::Add),
    (b"new", Keyword::New),
    (b"end", Keyword::End),
    (b"sub", Keyword::Sub),
    (b"ptr", Keyword::Ptr),
    (b"num", Keyword::Num),
    (b"lea", Keyword::Lea),
];

const OF_FOUR: [(&[u8], Keyword); 12] = [
    (b"setp", Keyword::Setp),
    (b"getp", Keyword::Getp),
    (b"setn", Keyword::Setn),
    (b"getn", Keyword::Getn),
    (b"free", Keyword::Free),
    (b"heap", Keyword::Heap),
    (b"type", Keyword::TypeLine),
    (b"casp", Keyword::Casp),
    (b"move", Keyword::Move),
    (b"same", Keyword::Same),
    (b"show", Keyword::Show),
    (b"else", Keyword::Else),
];

const OF_FIVE: [(&[u8], Keyword); 4] = [
    (b"clear", Keyword::Clear),
    (b"loadg", Keyword::Loadg),
    (b"const", Keyword::Const),
    (b"print", Keyword::Print),
];

const OF_SIX: [(&[u8], Keyword); 5] = [
    (b"global", Keyword::Global),
    (b"script", Keyword::Script),
    (b"storeg", Keyword::Storeg),
    (b"isnull", Keyword::Isnull),
    (b"repeat", Keyword::Repeat),
];

impl Keyword {
    /// The keyword that the word is.
    pub fn of(word: &[u8]) -> Option<Keyword>
        ensures { result ≡ spec.keyword_of word.now }
    {
        match word.len() {
            2 => keyword_among(&OF_TWO, word),
            3 => keyword_among(&OF_THREE, word),
            4 => keyword_among(&OF_FOUR, word),
            5 => keyword_among(&OF_FIVE, word),
            6 => keyword_among(&OF_SIX, word),
            _ => None,
        }
    }
}

fn keyword_among(table: &[(&[u8], Keyword)], word: &[u8]) -> Option<Keyword>
    ensures { result ≡ spec.keyword_among (map (λ entry. (entry.0.now, entry.1)) table.now) word.now }
{
    for (name, keyword) in table {
        if word == *name {
            return Some(*keyword);
        }
    }
    None
}
