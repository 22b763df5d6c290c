// How a run of the office ends.
ghost use Rattle.std.specs.Prelude.{◌≡◌};
ghost use Rattle.command_answers.specs.Status.{code_of};

/// How `allocate` ended. The numbers are the exit statuses of the program.
#[derive(Clone, Copy, PartialEq, Eq)]
pub enum Status {
    /// The source was read to its end by a command that reads it, and all output was taken.
    Ok = 0,
    /// The words spell no command.
    Usage = 2,
    /// The input has a fault: the line written names the first one.
    BadInput = 3,
    /// The source failed: its count of faults rose.
    ReadFault = 4,
    /// The sink failed: its count of faults rose. A prefix of the output or of a fault's line was written.
    WriteFault = 5,
    /// The keeper failed: its count of faults rose. The output of the requests before the failure was written.
    KeeperFault = 6,
    /// Memory ran out. For this status alone no cause is claimed.
    OutOfMemory = 7,
    /// The listener of a served office failed: its count of faults rose.
    DoorFault = 8,
    /// The records of the keeper do not replay: the line written names the first row, or the first seat that differs.
    Differs = 9,
    /// What a dossier publishes is not what the rules give, or under `audit best` a round is not the best one.
    /// The lines written name the first clause that does not hold, or the first such round. The input was read to its end.
    Broken = 10,
}

impl Status {
    /// Returns the exit status.
    pub fn code(self) -> u8
        ensures { result ≡ code_of self }
    {
        self as u8
    }
}
