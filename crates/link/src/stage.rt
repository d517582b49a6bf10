// What a call does at a stage: it settles, closes, or is refused.
ghost use Rattle.std.specs.Prelude.{◌≡◌};
ghost use Rattle.link.specs.Stages.{after};

#[derive(Clone, Copy, PartialEq, Eq, Debug)]
pub enum Call {
    Begin,
    Kinds,
    Star,
    Wrap,
    Await,
    Entries,
    Finish,
}

/// What is settled since the link began.
#[derive(Clone, Copy, PartialEq, Eq, Debug)]
pub struct Settled {
    pub kinds: bool,
    pub star: bool,
    pub wrap: bool,
    pub awaits: bool,
}

#[derive(Clone, Copy, PartialEq, Eq, Debug)]
pub enum Stage {
    Fresh,
    Open(Settled),
    Closed,
}

/// The stage after an accepted call, or none where the call is not allowed.
pub fn stage_after(stage: Stage, call: Call) -> Option<Stage>
    ensures { result ≡ after stage call }
{
    match (stage, call) {
        (_, Call::Begin) => Some(Stage::Open(Settled {
            kinds: false,
            star: false,
            wrap: false,
            awaits: false,
        })),
        (Stage::Open(s), Call::Kinds) => Some(Stage::Open(Settled { kinds: true, ..s })),
        (Stage::Open(s), Call::Star) => Some(Stage::Open(Settled {
            star: s.star | s.kinds,
            ..s
        })),
        (Stage::Open(s), Call::Wrap) => Some(Stage::Open(Settled {
            wrap: s.wrap | s.kinds,
            ..s
        })),
        (Stage::Open(s), Call::Await) => Some(Stage::Open(Settled { awaits: true, ..s })),
        (Stage::Open(s), Call::Entries) => Some(Stage::Open(s)),
        (Stage::Open(s), Call::Finish) => {
            (s.kinds & s.star & s.wrap & s.awaits).then_some(Stage::Closed)
        }
        (Stage::Fresh | Stage::Closed, _) => None,
    }
}
