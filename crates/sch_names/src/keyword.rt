//! The keywords.

ghost use Rattle.std.specs.Prelude.{◌≡◌, ℕ, List, length, map};
ghost use Rattle.sch_names.specs.Words.{keyword_of, keyword_among, keywords as all_keywords, named_of};

/// A keyword of R5RS.
#[derive(Clone, Copy, Drop)]
pub enum Keyword {
    Quote,
    Lambda,
    If,
    Set,
    Cond,
    Case,
    And,
    Or,
    Let,
    LetStar,
    Letrec,
    Begin,
    Do,
    Define,
    Else,
    Arrow,
    /// A keyword of R5RS that this language leaves out.
    LeftOut,
}

/// The keywords by the lengths of their names, with those of R5RS that this language leaves out.
const OF_TWO: [(&str, Keyword); 4] = [
    ("if", Keyword::If),
    ("or", Keyword::Or),
    ("do", Keyword::Do),
    ("=>", Keyword::Arrow),
];

const OF_THREE: [(&str, Keyword); 2] = [("and", Keyword::And), ("let", Keyword::Let)];

const OF_FOUR: [(&str, Keyword); 5] = [
    ("set!", Keyword::Set),
    ("cond", Keyword::Cond),
    ("case", Keyword::Case),
    ("let*", Keyword::LetStar),
    ("else", Keyword::Else),
];

const OF_FIVE: [(&str, Keyword); 3] = [
    ("quote", Keyword::Quote),
    ("begin", Keyword::Begin),
    ("delay", Keyword::LeftOut),
];

const OF_SIX: [(&str, Keyword); 3] = [
    ("lambda", Keyword::Lambda),
    ("letrec", Keyword::Letrec),
    ("define", Keyword::Define),
];

const OF_SEVEN: [(&str, Keyword); 1] = [("unquote", Keyword::LeftOut)];

const OF_MORE: [(&str, Keyword); 6] = [
    ("quasiquote", Keyword::LeftOut),
    ("unquote-splicing", Keyword::LeftOut),
    ("define-syntax", Keyword::LeftOut),
    ("let-syntax", Keyword::LeftOut),
    ("letrec-syntax", Keyword::LeftOut),
    ("syntax-rules", Keyword::LeftOut),
];

/// Keywords among which are all whose names have this length.
fn keywords_of_length(n: usize) -> &'static [(&'static str, Keyword)]
    ensures { (x : List ℕ) → length x ≡ n → keyword_among x (map named_of result.now) ≡ keyword_among x all_keywords }
{
    match n {
        2 => &OF_TWO,
        3 => &OF_THREE,
        4 => &OF_FOUR,
        5 => &OF_FIVE,
        6 => &OF_SIX,
        7 => &OF_SEVEN,
        0 | 1 | 8 | 9 => &[],
        _ => &OF_MORE,
    }
}

/// The keyword of this name, among some.
fn keyword_among(x: &[u8], keywords: &[(&'static str, Keyword)]) -> Option<Keyword>
    ensures { result ≡ keyword_among x.now (map named_of keywords.now) }
{
    for (name, keyword) in keywords {
        if x == name.as_bytes() {
            return Some(*keyword);
        }
    }
    None
}

/// The keyword that a name is.
#[tactic(auto, unfolding(crate::specs::Words::keyword_of))]
pub fn keyword_of(x: &[u8]) -> Option<Keyword>
    ensures { result ≡ keyword_of x.now }
{
    keyword_among(x, keywords_of_length(x.len()))
}
