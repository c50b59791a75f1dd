//! The two ends. Their calls stand in `writing.rt` and `reading.rt`: a struct with ghost fields imports each `ghost use`
//! of its file, and what those calls use speaks of these structs.
ghost use Rattle.std.specs.Prelude.{◌≡◌, [], IsSome, false, drop};
ghost use Rattle.left_right.specs.Sides.{view};
ghost use Rattle.edr_live.specs.Rule.{all_of};

use crate::rule::{CopyReader, CopyWriter};

/// The end that shows. It is not `Drop`: end it by [`LiveWriter::close`].
pub struct LiveWriter {
    pub(crate) writer: CopyWriter,
    // Memory has run out, and nothing is shown any more.
    pub(crate) ended: bool,
    ghost knows: { view writer.desk.place ≡ all_of writer.desk.shown.value },
    ghost none_pending: { ended ≡ false → drop writer.behind writer.log.items ≡ [] },
}

/// The end of a reader. It may go to another thread ([`crate::laws::a_reader_may_move`]).
#[derive(Drop)]
pub struct LiveReader {
    pub(crate) reader: CopyReader,
    ghost opened: { IsSome (view reader.place).opening },
}

/// Both ends.
pub struct Live {
    pub writer: LiveWriter,
    pub reader: LiveReader,
}
