// The lines of the faults of a season that no input has: a source that fails, one that is too long to be written here, and want of memory.
use season_file::SeasonFault;
use season_texts::fault_text;
use std::alloc::Global;

fn has_line(alloc: Global, fault: SeasonFault, line: &str) -> bool {
    match fault_text(alloc, fault) {
        Ok(text) => text.as_slice() == line.as_bytes(),
        Err(_) => false,
    }
}

fn have_lines(alloc: Global) -> bool {
    has_line(alloc, SeasonFault::ReadFault, "fault: read\n")
        && has_line(alloc, SeasonFault::TooLong, "fault: bundle TooLong\n")
        && has_line(alloc, SeasonFault::OutOfMemory, "fault: memory\n")
}

#[test]
fn other_faults_have_their_lines(rt: HostRuntime) {
    assert!(rt; have_lines(rt.alloc()));
}
