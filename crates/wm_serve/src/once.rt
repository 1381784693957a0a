//! A listener that gives one link.
use crate::rehearsed::RehearsedLink;
use std::marker::Model;
use wm_ports::{Accepted, Listen};

/// A listener in memory that gives its link at the first accepting, and is quiet from then on. It keeps the link that is given
/// back, and has no faults.
#[derive(Drop)]
pub struct OnceListen {
    link: RehearsedLink,
    waiting: Option<RehearsedLink>,
    left: Option<RehearsedLink>,
    calls: u64,
}

impl Model for OnceListen {
    ghost use Rattle.std.specs.Prelude.{◌≡◌, ◌≤◌, None};
    ghost use Rattle.wm_defs.specs.Counts.{LAST_COUNT};
    ghost use Rattle.wm_serve.specs.Once.{OnceState, waiting_at};

    ghost Value = { OnceState };

    ghost view = { λ s. record { link = s.link; left = s.left; calls = s.calls } };

    ghost invariant = { λ s. (s.waiting ≡ waiting_at s.link s.calls) × (s.calls ≡ 0 → s.left ≡ None) × (s.calls ≤ LAST_COUNT) };
}

impl OnceListen {
    ghost use Rattle.std.specs.Prelude.{◌≡◌};
    ghost use Rattle.wm_serve.specs.Once.{fresh};

    /// A listener that gives this link, of which it keeps the copy.
    pub fn new(link: RehearsedLink, copy: RehearsedLink) -> OnceListen
        requires { copy ≡ link }
        ensures { result ≡ fresh link }
    {
        OnceListen {
            link: copy,
            waiting: Some(link),
            left: None,
            calls: 0,
        }
    }
}

impl Listen<RehearsedLink> for OnceListen {
    ghost use Rattle.std.specs.Prelude.{◌≡◌, ◌<◌, None};
    ghost use Rattle.wm_serve.specs.Once.{once_told};

    ghost faults = { λ _. 0 };

    ghost told = { once_told };

    ghost has_out = { λ s. (0 < s.calls) × (s.left ≡ None) };

    /// Gives the link, where it has not been given.
    fn accept(&mut self) -> Accepted<RehearsedLink> {
        self.calls = self.calls.saturating_add(1);
        let Some(link) = self.waiting.take() else {
            return Accepted::Quiet;
        };
        Accepted::Link(link)
    }

    /// Keeps the link.
    fn give_back(&mut self, link: RehearsedLink) {
        self.left = Some(link);
    }
}
