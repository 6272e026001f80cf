// The lines of workers whose accounts are closed keep all rules. The function here does nothing: the proof of a function
// that calls it may use what it ensures.
ghost use Rattle.std.specs.Prelude.{List};
ghost use Rattle.script_text.specs.declared.line.Line.{Line};
ghost use Rattle.line_account.specs.Answers.{Run};
ghost use Rattle.line_account.specs.Closing.{Closed, Worker};
ghost use Rattle.line_account.specs.Scripts.{ServesScript};
ghost use Rattle.line_account.specs.Crews.{HaveCourses};
ghost use Rattle.line_account.specs.Rules.{KeepsRules};

use crate::laws::{
    added_counts_are_exact, begun_versions_have_bounds, busy_words_count_readers,
    bytes_are_of_lines, doomed_entries_were_purged, ends_tell_the_version_begun,
    entries_are_given_back_by_lines, entries_are_stored_by_lines, entries_found_were_there,
    entries_given_whole_were_finished, epochs_have_versions, halted_entries_were_given_up,
    hit_versions_were_printed, hits_are_of_lines, keys_are_of_lines, lines_are_in_order,
    more_readers_come_from_others, other_urls_have_the_key, parts_are_not_short,
    refusals_have_causes, runs_that_fit_lose_nothing, scripts_bound_what_is_offered,
    spent_numbers_have_bounds, tabs_stay_at_their_entries, versions_are_begun_by_one_line,
    versions_printed_alone_are_known,
};

/// Where the accounts of workers are closed who served a script, each has its course, and marks hand on what their setters
/// knew, the lines of these workers keep all rules.
pub fn closed_crews_keep_the_rules<X>()
    ensures { (r : Run X) (script : List Line) (crew : List Worker) → (c : Closed r crew) → ServesScript script crew
        → HaveCourses r crew c.view_at
        → KeepsRules r script crew }
{
    added_counts_are_exact::<X>();
    begun_versions_have_bounds::<X>();
    busy_words_count_readers::<X>();
    bytes_are_of_lines::<X>();
    doomed_entries_were_purged::<X>();
    ends_tell_the_version_begun::<X>();
    entries_are_given_back_by_lines::<X>();
    entries_are_stored_by_lines::<X>();
    epochs_have_versions::<X>();
    halted_entries_were_given_up::<X>();
    hit_versions_were_printed::<X>();
    hits_are_of_lines::<X>();
    entries_given_whole_were_finished::<X>();
    keys_are_of_lines::<X>();
    lines_are_in_order::<X>();
    more_readers_come_from_others::<X>();
    other_urls_have_the_key::<X>();
    parts_are_not_short::<X>();
    refusals_have_causes::<X>();
    runs_that_fit_lose_nothing::<X>();
    scripts_bound_what_is_offered::<X>();
    spent_numbers_have_bounds::<X>();
    tabs_stay_at_their_entries::<X>();
    versions_are_begun_by_one_line::<X>();
    entries_found_were_there::<X>();
    versions_printed_alone_are_known::<X>();
}
