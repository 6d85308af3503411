//! What is told of a run that ended, and the status it gives. No run of the program comes to each: its runtime answers no registers
//! that aren't lawful.

use lfi_file_commands::Ending;
use lfi_run_image::{Halt, ImageRun, StopCause};
use std::test::Fail;

/// Each way in which a run ends, its line, and the status.
const ENDED: [(Halt, &str, u8); 7] = [
    (Halt::StepsUsed, "halt 1 after 3 steps", 0),
    (
        Halt::Stopped(StopCause::NoAccess(0x1_F000_0000)),
        "halt 2 at 0x00000001f0000000 after 3 steps",
        1,
    ),
    (
        Halt::Stopped(StopCause::NoFetch(0x1_0002_0004)),
        "halt 3 at 0x0000000100020004 after 3 steps",
        1,
    ),
    (
        Halt::Stopped(StopCause::Breakpoint(0x1_0002_0000)),
        "halt 4 at 0x0000000100020000 after 3 steps",
        0,
    ),
    (
        Halt::Stopped(StopCause::Ended(255)),
        "halt 5 status 255 after 3 steps",
        0,
    ),
    (
        Halt::Stopped(StopCause::UnlawfulAnswer),
        "halt 6 after 3 steps",
        1,
    ),
    (Halt::NoMemory, "halt 7 after 3 steps", 3),
];

#[test]
fn tells_how_a_run_ended(rt: HostRuntime) -> Result<(), Fail> {
    for (halt, line, status) in &ENDED {
        let run = ImageRun::Ended {
            halt: *halt,
            steps: 3,
        };
        assert!(rt; run.to_string(rt.alloc())?.as_str() == *line, "{line}");
        assert!(rt; Ending::of_run(&run).status() == *status, "{line}");
    }
    Ok(())
}
