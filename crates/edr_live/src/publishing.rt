//! One publishing, and a reader that is told.
ghost use Rattle.std.specs.Prelude.{◌≡◌, [], IfSome, OnErr, OnOk, drop};
ghost use Rattle.left_right.specs.Sides.{view};
ghost use Rattle.edr_live.specs.Publishing.{IsPublished};

use crate::rule::{CopyReader, CopyWriter, Notes, ShowsOn, Welcomes};
use std::alloc::AllocError;
use std::sync::Wait;

/// From now on readers take what is pending too. At `Err` they take what they took.
pub(crate) fn publish<R: Wait>(writer: CopyWriter, rt: &R) -> (CopyWriter, Result<(), AllocError>)
    ensures shown { OnOk result.1 (IsPublished writer.desk.shown.value (drop writer.behind writer.log.items)
        result.0.desk.shown.value (view result.0.desk.place)) }
    ensures none { OnOk result.1 (drop result.0.behind result.0.log.items ≡ []) }
    ensures same { OnErr result.1 (result.0.desk.shown.value ≡ writer.desk.shown.value) }
    ensures knows { OnErr result.1 (view result.0.desk.place ≡ view writer.desk.place) }
{
    writer.publish_as::<ShowsOn, R>(rt)
}

/// A reader that knows what the writer knows, if there is room for one.
pub(crate) fn welcome(writer: &mut CopyWriter) -> Option<CopyReader>
    ensures shown { writer.new.desk.shown ≡ writer.old.desk.shown }
    ensures knows { view writer.new.desk.place ≡ view writer.old.desk.place }
    ensures log { (writer.new.log ≡ writer.old.log) × (writer.new.behind ≡ writer.old.behind) }
    ensures told { IfSome result (λ r. view r.place ≡ view writer.old.desk.place) }
{
    let Ok(mut reader) = writer.factory().reader() else {
        return None;
    };
    reader.learn::<Welcomes>(writer.tell::<Notes>());
    Some(reader)
}
