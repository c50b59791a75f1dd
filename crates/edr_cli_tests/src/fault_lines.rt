//! Each fault has its line.

use edr_cli::Fault;
use edr_image::{HeaderRefused, OldRefused};
use edr_items::Sensor;
use edr_spell::{TraceFault, TraceRefused};

#[test]
fn each_fault_has_its_line(rt: HostRuntime) {
    let not_formatted = HeaderRefused::NotFormatted {
        offset: 0,
        found: 0,
    };
    let faults = [
        (Fault::Usage, "fault: usage\n"),
        (Fault::Read, "fault: read fault\n"),
        (Fault::Store, "fault: store fault\n"),
        (
            Fault::Short {
                size: 95,
                needed: 96,
            },
            "fault: image short 95 of 96\n",
        ),
        (
            Fault::Header(not_formatted),
            "fault: image not formatted at 0 found 0\n",
        ),
        (
            Fault::Header(HeaderRefused::Version { found: 2 }),
            "fault: image version 2\n",
        ),
        (
            Fault::Header(HeaderRefused::Banks { found: 255 }),
            "fault: image banks 255\n",
        ),
        (
            Fault::Header(HeaderRefused::Choice { found: 2 }),
            "fault: image choice 2\n",
        ),
        (Fault::Formatted, "fault: image formatted\n"),
        (Fault::Spent, "fault: spent\n"),
        (Fault::OutOfMemory, "fault: out of memory\n"),
        (Fault::TooLong, "fault: too long\n"),
        (Fault::Fleet { offset: 0 }, "fault: fleet truncated at 0\n"),
    ];
    for (fault, line) in faults {
        assert!(rt; fault.line().as_bytes() == line.as_bytes());
    }
}

#[test]
fn each_refusal_of_an_old_image_has_its_line(rt: HostRuntime) {
    let (size, needed) = (1_119, 1_120);
    let (bank, offset, found) = (1, 19, 0);
    let faults = [
        (
            OldRefused::Short { size, needed },
            "fault: old image short 1119 of 1120\n",
        ),
        (
            OldRefused::Header(HeaderRefused::Version { found: 2 }),
            "fault: old image version 2\n",
        ),
        (
            OldRefused::Bank {
                bank,
                offset,
                found,
            },
            "fault: old image bank 1 damaged at 19 found 0\n",
        ),
    ];
    for (refused, line) in faults {
        assert!(rt; Fault::Old(refused).line().as_bytes() == line.as_bytes());
    }
}

#[test]
fn each_fault_of_a_trace_has_its_words(rt: HostRuntime) {
    let low = -100_000;
    let high = 100_000;
    let sensor = Sensor::Across;
    let faults = [
        (
            1,
            TraceFault::Fields { found: 2 },
            "fault: trace row 1: fields 2\n",
        ),
        (1, TraceFault::Word, "fault: trace row 1: word\n"),
        (
            1,
            TraceFault::Number { field: 2 },
            "fault: trace row 1: number in field 2\n",
        ),
        (1, TraceFault::Place, "fault: trace row 1: place\n"),
        (
            3,
            TraceFault::Order { last: 5 },
            "fault: trace row 3: order after 5\n",
        ),
        (
            2,
            TraceFault::Moment { limit: 86_400_000 },
            "fault: trace row 2: moment past 86400000\n",
        ),
        (
            2,
            TraceFault::Range { low, high },
            "fault: trace row 2: range -100000 to 100000\n",
        ),
        (
            2,
            TraceFault::Gap { last: 0 },
            "fault: trace row 2: gap after 0\n",
        ),
        (
            4,
            TraceFault::Skew { sensor },
            "fault: trace row 4: skew of across\n",
        ),
        (3, TraceFault::Unended, "fault: trace row 3: unended\n"),
    ];
    for (row, fault, line) in faults {
        let told = Fault::Trace(TraceRefused { row, fault }).line();
        assert!(rt; told.as_bytes() == line.as_bytes());
    }
}
