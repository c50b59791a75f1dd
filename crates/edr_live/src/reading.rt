//! The call of a reader.
ghost use Rattle.std.specs.Prelude.{◌≡◌, IfSome, IsNone};
ghost use Rattle.left_right.specs.Sides.{view};
ghost use Rattle.edr_live.specs.Ends.{lists_known, opening_known};
ghost use Rattle.edr_live.specs.Looking.{IsSeen};
ghost use Rattle.edr_live.specs.Reading.{IsRead};

use crate::copy::LiveCopy;
use crate::ends::LiveReader;
use crate::rule::{CopyReader, Looks};
use crate::shown::LiveView;
use core::mem::replace_with;

/// All banks as a copy has them.
pub(crate) fn view_in(copy: &LiveCopy) -> LiveView
    ensures { result ≡ copy.now.view }
{
    let view = &copy.view;
    *view
}

// All banks as the copy has them that readers take now. None where the writer is gone.
fn look(reader: CopyReader, _nothing: ()) -> (CopyReader, Option<LiveView>)
    ensures seen { IfSome result.1 (IsSeen (view reader.place) (view result.0.place)) }
    ensures none { IsNone result.1 → view result.0.place ≡ view reader.place }
{
    match reader.enter_as::<Looks>() {
        Ok(reading) => {
            let view = view_in(reading.get());
            (reading.leave(), Some(view))
        }
        Err(reader) => (reader, None),
    }
}

impl LiveReader {
    /// All banks as they are shown. The answer has at least the commands that this reader saw, or was told of, before. It
    /// waits for nobody, and takes no memory.
    ///
    /// None comes only where its writer was closed before.
    ///
    /// ```
    /// if let Some(view) = reader.read() {
    ///     println!(rt; "{} commands, bank 1: {:?}", view.applied, view.views[0])?;
    /// }
    /// ```
    pub fn read(&mut self) -> Option<LiveView>
        ensures read { IfSome result (IsRead self.old self.new) }
        ensures none { IsNone result → lists_known self.new ≡ lists_known self.old }
        ensures same { opening_known self.new ≡ opening_known self.old }
    {
        replace_with(&mut self.reader, (), look)
    }
}
