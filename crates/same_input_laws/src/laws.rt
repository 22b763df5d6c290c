// That the same input gives the same output of each command. Each law is the contract of a function that does nothing.
ghost use Rattle.same_input_laws.specs.RunOutputs.{CommandsAreOne};
ghost use Rattle.same_input_laws.specs.Keep.{HistoriesKeepOne};
ghost use Rattle.same_input_laws.specs.ResumeOutputs.{ResumesAreOne};
ghost use Rattle.same_input_laws.specs.UnitOutputs.{UnitsAreOne};
ghost use Rattle.same_input_laws.specs.SpecialOutputs.{SpecialsAreOne};
ghost use Rattle.same_input_laws.specs.Calls.{CallsAreOne};
ghost use Rattle.same_input_laws.specs.AuditOutputs.{EachAuditIsOne};
ghost use Rattle.same_input_laws.specs.SeasonDossiers.{SeasonsHaveDossiers};
ghost use Rattle.same_input_laws.specs.OwnRounds.{SoundAndBestAreOwn};
ghost use Rattle.same_input_laws.specs.Stops.{AStopCostsNothing};

use keeper_mem::Keeper;
use office_base::{Sink, Source};
use office_links::Door;

/// Two runs of `check` over the same bytes write the same. So do two of `run`, and two of one generated season.
pub fn commands_are_one()
    ensures { CommandsAreOne }
{
    season_commands::laws::one_answer();
    season_commands::laws::one_bundle_answer();
    one_output::laws::one_output();
    one_output::laws::one_tally();
}

/// Two runs of `resume` over the same bytes and the same visible records, both with an answer, end with the same status,
/// write the same and leave the same records.
pub fn resumes_are_one()
    ensures { ResumesAreOne }
{
    season_file::laws::one_reading();
    resume_command::laws::one_script_answer();
    one_output::laws::one_season();
    history_laws::laws::history_grows();
    replays::laws::one_end();
    season_commands::laws::one_run();
}

/// A stop costs nothing: an office that resumes from what a stopped run kept answers the other requests as the run that did
/// not stop, with the same bytes, and is in the same state at the end.
pub fn a_stop_costs_nothing()
    ensures { AStopCostsNothing }
{
    season_laws::laws::kept_is_replayed();
    replays::laws::one_end();
    season_commands::laws::prefix_is_a_run();
    season_commands::laws::one_run();
}

/// Two offices of one season with one history keep the same records: in each window the same answers and raises, and in each
/// round the same seats.
pub fn histories_keep_one()
    ensures { HistoriesKeepOne }
{
    history_laws::laws::one_history();
}

/// Two runs of `units` over the same bytes write the same.
pub fn units_are_one()
    ensures { UnitsAreOne }
{
    units_command::laws::one_units_answer();
    commands_are_one();
}

/// Two runs of `special` over the same bytes and the same visible records, both with an answer, end with the same status
/// and write the same.
pub fn specials_are_one()
    ensures { SpecialsAreOne }
{
    season_file::laws::one_reading();
    one_output::laws::one_season();
    replays::laws::one_end();
    history_laws::laws::history_grows();
    history_laws::laws::orderly();
    special_round::laws::finals_are_known();
    special_audit::laws::one_remaining_matrix();
    choice_lists::laws::one_reading();
    round_laws::laws::enter();
    round_laws::laws::one_round();
    special_command::laws::one_special_answer();
    special_command::laws::special_rounds_can_be_listed();
    list_cutoffs::laws::one_list();
}

/// Two runs of `audit` over the same bytes, both with an answer, end with the same status and write the same.
/// So do two of `audit best`.
pub fn audits_are_one()
    ensures { EachAuditIsOne }
{
    audit_command::laws::one_audit();
    audit_command::laws::one_best();
}

/// Each season with its requests has a dossier: every text that is due exists, says what the office holds, and an audit finds no
/// broken clause.
pub fn seasons_have_dossiers()
    ensures { SeasonsHaveDossiers }
{
    one_output::laws::one_season();
    history_laws::laws::orderly();
    history_laws::laws::history_grows();
    season_laws::laws::every_request_is_answered();
    season_laws::laws::published_is_read();
    merit_choice::laws::choice_size();
    merit_choice::laws::in_merit_ranks();
    axiom_laws::laws::axioms_are_the_rule();
    open_then_category::laws::one_programme_choice();
    round_laws::laws::choose_well();
    one_output::laws::one_verdict_of_bytes();
    dossier_file::laws::one_dossier();
    dossier_file::laws::texts_are_one();
    best_audit::laws::one_best_verdict();
}

/// In a dossier of which no clause is broken and each round is the best one, rounds and final admissions are those that the office
/// publishes while it answers the dossier's requests, byte for byte.
pub fn sound_and_best_are_own()
    ensures { SoundAndBestAreOwn }
{
    one_output::laws::one_season();
    history_laws::laws::orderly();
    history_laws::laws::history_grows();
    season_laws::laws::published_is_read();
    round_laws::laws::choose_well();
}

/// Two calls of the program with the same words, over the same visible bytes and tables, that both end with an answer end in
/// one way: with one status, one output, and tables that hold the same. Words of `serve` are left out.
pub fn calls_are_one<
    S: Source,
    K: Sink,
    P: Keeper,
    D: Door,
    T: Source,
    N: Sink,
    Q: Keeper,
    E: Door,
>()
    ensures { CallsAreOne S.Source K.Sink P.Keeper D.Door D.Conn.Link
        T.Source N.Sink Q.Keeper E.Door E.Conn.Link }
{
    step_command::laws::one_answer();
    season_commands::laws::one_answer();
    season_commands::laws::one_bundle_answer();
    units_command::laws::one_units_answer();
    command_words::laws::one_spelling();
    one_output::laws::one_season();
    one_output::laws::one_output();
    one_output::laws::one_tally();
    resumes_are_one();
    specials_are_one();
    audits_are_one();
}
