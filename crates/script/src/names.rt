// The call that a line names: its first token, compared with the names of the calls.
ghost use Rattle.std.specs.Prelude.{◌≡◌};
ghost use Rattle.script.specs.Names.{named, settings, name_of};

use crate::text::{part, token_at};

#[derive(Clone, Copy)]
pub enum Name {
    New,
    SetX,
    SetP,
    SetQ,
    SetParams,
    SetKind,
    OpenPrediction,
    OpenCorrection,
    ClosePrediction,
    CloseCorrection,
    CloseCorrectionFlat,
    Abandon,
    OpenPredictionStepped,
    OpenCorrectionStepped,
    Ask,
    ImagePrediction,
    ImageCorrection,
    ClosePredictionStepped,
    CloseCorrectionStepped,
    CloseCorrectionFlatStepped,
    ReadX,
    ReadP,
    ReadQ,
    ReadPoints,
    ReadParams,
    ReadStale,
    Save,
    Point,
    Wrap,
    Root,
    Dump,
    NewPair,
    Load,
    First,
    Second,
    Narrow,
    Unknown,
}

// The names of the calls. `@1` and `@2` name no call but a side of the pair, and `@w` the f32 filter: the call on it follows.
const NAMES: [(&[u8], Name); 36] = [
    (b"new", Name::New),
    (b"setx", Name::SetX),
    (b"setp", Name::SetP),
    (b"setq", Name::SetQ),
    (b"setpar", Name::SetParams),
    (b"setkind", Name::SetKind),
    (b"openp", Name::OpenPrediction),
    (b"openc", Name::OpenCorrection),
    (b"closep", Name::ClosePrediction),
    (b"closec", Name::CloseCorrection),
    (b"closef", Name::CloseCorrectionFlat),
    (b"abandon", Name::Abandon),
    (b"sopenp", Name::OpenPredictionStepped),
    (b"sopenc", Name::OpenCorrectionStepped),
    (b"ask", Name::Ask),
    (b"imagep", Name::ImagePrediction),
    (b"imagec", Name::ImageCorrection),
    (b"sclosep", Name::ClosePredictionStepped),
    (b"sclosec", Name::CloseCorrectionStepped),
    (b"sclosef", Name::CloseCorrectionFlatStepped),
    (b"readx", Name::ReadX),
    (b"readp", Name::ReadP),
    (b"readq", Name::ReadQ),
    (b"readpts", Name::ReadPoints),
    (b"readpar", Name::ReadParams),
    (b"readstale", Name::ReadStale),
    (b"save", Name::Save),
    (b"point", Name::Point),
    (b"wrap", Name::Wrap),
    (b"root", Name::Root),
    (b"dump", Name::Dump),
    (b"newpair", Name::NewPair),
    (b"load", Name::Load),
    (b"@1", Name::First),
    (b"@2", Name::Second),
    (b"@w", Name::Narrow),
];

// The call that a token names.
pub fn name_of(token: &[u8]) -> Name
    ensures { result ≡ named settings token.now }
{
    match NAMES.iter().find(|(word, _)| token == *word) {
        Some((_, name)) => *name,
        None => Name::Unknown,
    }
}

// The call that the first token at place at or after it names, and the place after that token.
#[derive(Clone, Copy)]
pub struct Call {
    pub name: Name,
    pub next: usize,
}

pub fn call_at(s: &[u8], at: usize) -> Call
    ensures { result ≡ name_of s.now at }
{
    let t = token_at(s, at);
    Call {
        name: name_of(part(s, t)),
        next: t.end,
    }
}
