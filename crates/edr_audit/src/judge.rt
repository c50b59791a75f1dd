//! What is said of branches after the last cycle.
ghost use Rattle.std.specs.Prelude.{◌≡◌, ◌<◌, ◌^◌, length};
ghost use Rattle.edr_image.specs.Banks.{events};
ghost use Rattle.edr_audit.specs.Judged.{IsJudged, LooksAt};

use crate::branches::Branch;
use crate::same::fits;
use crate::tail::with_tail;
use crate::views::ImageView;
use crate::{Difference, Verdict};
use edr_record::Record;

/// What one more branch shows.
pub enum Seen {
    /// It fits, and the report is its text.
    Agrees,
    /// What was found so far: the difference of the first that fits.
    SoFar(Option<u32>),
}

// Looks at one more branch.
fn look(
    report: &[u8],
    branch: &Branch,
    to: &ImageView,
    found: &[(u8, Record)],
    first: Option<u32>,
) -> Seen
    requires report { length report.now < 2 ^ 32 }
    requires events { found.now ≡ events to.now.store.banks }
    ensures { LooksAt report.now to.now branch.now first result }
{
    if !fits(branch, to) {
        return Seen::SoFar(first);
    }
    match with_tail(branch.text, report, to, found).difference(report) {
        None => Seen::Agrees,
        Some(offset) => match first {
            None => Seen::SoFar(Some(offset)),
            Some(first) => Seen::SoFar(Some(first)),
        },
    }
}

/// What is said of these branches.
pub fn judge(report: &[u8], branches: &[Branch], to: &ImageView, found: &[(u8, Record)]) -> Verdict
    requires report { length report.now < 2 ^ 32 }
    requires events { found.now ≡ events to.now.store.banks }
    ensures { IsJudged report.now to.now branches.now result }
{
    let mut first = None;
    for k in 0..branches.len() {
        match look(report, &branches[k], to, found, first) {
            Seen::Agrees => return Verdict::Agrees,
            Seen::SoFar(next) => first = next,
        }
    }
    match first {
        None => Verdict::Differs(Difference::Run),
        Some(offset) => Verdict::Differs(Difference::Report { offset }),
    }
}
