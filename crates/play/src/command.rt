//! The commands of a script.

/// A command.
#[derive(Clone, Copy)]
pub enum Command {
    /// Opens a frame.
    Open,
    /// Wants an open frame.
    OnFrame(OnFrame),
}

/// A command that wants an open frame.
#[derive(Clone, Copy)]
pub enum OnFrame {
    Call(Call),
    Map,
    Samples,
    Bits,
    Picture,
    All,
    At,
}

/// A call on an open frame.
#[derive(Clone, Copy)]
pub enum Call {
    Place,
    LfDequantise,
    LfCorrelate,
    LfSmooth,
    HfDequantise,
    HfCorrelate,
    Rebuild,
}

impl Command {
    /// The command that a word names.
    pub fn of(word: &str) -> Option<Command> {
        if word == "open" {
            return Some(Command::Open);
        }
        Some(Command::OnFrame(OnFrame::of(word)?))
    }
}

impl OnFrame {
    fn of(word: &str) -> Option<OnFrame> {
        match word {
            "map" => Some(OnFrame::Map),
            "samples" => Some(OnFrame::Samples),
            "bits" => Some(OnFrame::Bits),
            "picture" => Some(OnFrame::Picture),
            "all" => Some(OnFrame::All),
            "at" => Some(OnFrame::At),
            _ => Some(OnFrame::Call(Call::of(word)?)),
        }
    }
}

impl Call {
    fn of(word: &str) -> Option<Call> {
        match word {
            "place" => Some(Call::Place),
            "lf-dequantise" => Some(Call::LfDequantise),
            "lf-correlate" => Some(Call::LfCorrelate),
            "lf-smooth" => Some(Call::LfSmooth),
            "hf-dequantise" => Some(Call::HfDequantise),
            "hf-correlate" => Some(Call::HfCorrelate),
            "rebuild" => Some(Call::Rebuild),
            _ => None,
        }
    }
}
