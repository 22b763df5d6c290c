// What holds of findings, for every reader. Each is the contract of a function that does nothing.
ghost use Rattle.std.specs.Prelude.{ℕ, List};
ghost use Rattle.special_audit.specs.Laws.{HaveOneFinding, OneRemaining};

/// What final rows leave of a matrix is one matrix.
pub fn one_remaining_matrix()
    ensures { OneRemaining }
{
    slot_cert::laws::one_certificate();
}

/// Bytes of which an audit finds something have no fault. They have one finding, or one first fault.
pub fn one_finding()
    ensures { (bytes : List ℕ) → HaveOneFinding bytes }
{
    one_remaining_matrix();
    seat_matrix::laws::one_step_changes();
    one_output::laws::one_season();
    one_output::laws::one_dossier_of_bytes();
    dossier_file::laws::one_dossier();
    dossier_file::laws::texts_are_one();
    audit_rules::laws::one_verdict();
    special_round::laws::one_remaining();
    choice_lists::laws::one_reading();
}
