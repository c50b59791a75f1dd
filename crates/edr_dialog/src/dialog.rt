//! A dialog over a stream of bytes.
ghost use Rattle.std.specs.Prelude.{◌≡◌, ◌≤◌, ◌∷◌, ◌++◌, [], ℕ, List, length, take};
ghost use Rattle.edr_image.specs.Image.{View};
ghost use Rattle.edr_banks.specs.Opening.{view_when_opened};
ghost use Rattle.edr_dialog.specs.Answers.{FedLeaves, fed_at, fed_by, length_in};
ghost use Rattle.edr_dialog.specs.Replies.{next, replies, reply_at};
ghost use Rattle.edr_dialog.specs.Stages.{HasHeard, StillHears};

use crate::frames::{LONGEST_REPLY, Request, Said};
use crate::replying::put_reply_to;
use crate::stages::FrameStage;
use edr_banks::Banks;
use std::marker::Model;

/// What came of a byte, and how many bytes its reply has.
#[derive(Clone, Copy, Debug, PartialEq, Eq)]
pub enum Fed {
    /// No frame is whole with it, and none is refused.
    More,
    /// A request is replied to, perhaps by the refusal of its bank.
    Reply { length: u16 },
    /// The dialog has ended by a Bye.
    Bye { length: u16 },
    /// The dialog has ended, since no request has such a kind, or such a length.
    Refused { length: u16 },
}

impl Fed {
    /// How many bytes the reply has: 0 where there is none.
    pub fn reply_len(&self) -> usize
        ensures { result ≡ length_in self.now }
    {
        match self {
            Fed::More => 0,
            Fed::Reply { length } | Fed::Bye { length } | Fed::Refused { length } => {
                usize::from(*length)
            }
        }
    }
}

/// A dialog over opened banks. A contract sees what the image said when they were opened, and how the dialog stands.
#[derive(Drop)]
pub struct Dialog<'a> {
    banks: &'a Banks,
    stage: FrameStage,
}

impl<'a> Model for Dialog<'a> {
    ghost use Rattle.edr_dialog.specs.Stages.{Talk};

    ghost Value = { Talk };

    ghost use Rattle.edr_banks.specs.Opening.{view_when_opened};
    ghost use Rattle.edr_dialog.specs.Stages.{stand_at};

    ghost view = { λ d. record { view = view_when_opened d.banks.now; stand = stand_at d.stage } };
}

// The answer where a frame says this, by the length of the reply to it.
fn fed_by(said: Said, length: u16) -> Fed
    ensures { result ≡ fed_by said length }
{
    match said {
        Said::Begun => Fed::More,
        Said::Asks {
            request: Request::Bye,
        } => Fed::Bye { length },
        Said::Asks { .. } => Fed::Reply { length },
        Said::NoKind { .. } | Said::NoLength { .. } => Fed::Refused { length },
    }
}

impl<'a> Dialog<'a> {
    /// A dialog to which nothing was fed.
    pub fn new(banks: &'a Banks) -> Dialog<'a>
        ensures { HasHeard (view_when_opened banks.now) [] result }
    {
        Dialog {
            banks,
            stage: FrameStage::Idle,
        }
    }

    /// Takes the next byte of the stream. Where a frame is whole with it, or is refused, the reply is written to the front of
    /// `out` at once; the rest of `out` may have anything. It takes no memory.
    pub fn feed(&mut self, byte: u8, out: &mut [u8; LONGEST_REPLY]) -> Fed
        requires open { StillHears self.old.stand }
        // The replies, in order, are those to the stream.
        ensures replies { (v : View) (stream : List ℕ) → HasHeard v stream self.old
            → (replies v (stream ++ byte ∷ []) ≡ replies v stream ++ take (length_in result) out.new)
            × HasHeard v (stream ++ byte ∷ []) self.new }
        // A Bye and a refusal of a kind or length end the dialog.
        ensures stands { self.new ≡ record self.old { stand = next self.old.stand byte } }
        ensures answer { result ≡ fed_at self.old.view self.old.stand byte }
        ensures leaves { FedLeaves result self.new.stand }
        ensures most { length_in result ≤ LONGEST_REPLY }
    {
        let heard = self.stage.hear(byte);
        self.stage = heard.stage;
        let length = put_reply_to(self.banks, heard.said, out);
        fed_by(heard.said, length)
    }
}
