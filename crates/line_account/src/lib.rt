//! What the lines that workers print may say, as a model by itself: which line each deed of a worker
//! belongs to, what the accounts of all workers tell together once they ended, and the rules that their
//! lines keep, each by a name of its own. The functions here do nothing: what they ensure are the laws.
#![tactic(auto)]

mod absurd;
mod absurd_epochs;
mod absurd_order;
mod absurd_tabs;
mod examples;
mod laws;
mod rules;

pub use absurd::{
    no_neighbour_is_purged, no_tab_changes_its_entry, nothing_dropped_is_hit,
    nothing_is_full_where_lines_fit, nothing_is_hit_before_it_is_stored,
    nothing_is_opened_that_never_was, nothing_is_purged_that_never_was, nothing_left_is_hit,
    nothing_too_large_is_stored,
};
pub use absurd_epochs::{
    no_begun_version_is_at_empty, nothing_is_doomed_at_taken, nothing_is_doomed_by_itself,
    nothing_is_evicted_that_was_not_whole, nothing_is_given_back_by_itself,
    nothing_is_given_back_by_refusals, nothing_is_given_back_that_never_was,
    nothing_of_the_file_is_freed_where_lines_fit, nothing_of_the_file_is_lost_where_lines_fit,
};
pub use absurd_order::{
    no_stage_falls, no_version_falls, no_version_falls_behind_a_mark, nothing_comes_behind_an_end,
    nothing_comes_behind_another_url, nothing_given_up_before_is_later,
    nothing_grows_behind_a_halt, nothing_is_purged_twice, nothing_is_wiped_twice,
    nothing_told_twice_is_forgotten,
};
pub use absurd_tabs::{
    no_neighbour_is_opened, no_own_tab_is_uncounted, no_tab_gives_another_body,
    nothing_has_more_readers_than_tabs, nothing_refused_is_given_whole, nothing_stored_is_halted,
};
pub use examples::{
    a_hit_has_what_was_stored, a_lone_spent_number_is_the_counter, a_lone_version_is_the_next_one,
    a_put_and_a_get_have_an_account, no_hit_follows_a_purge, no_hit_follows_a_wipe,
    no_old_miss_follows_a_mark, nothing_given_up_is_hit, nothing_gives_way_where_lines_fit,
    nothing_is_halted_by_itself,
};
pub use laws::{
    accounts_grow, added_counts_are_exact, additions_are_kept, begun_versions_have_bounds,
    busy_words_count_readers, bytes_are_of_lines, doomed_entries_were_purged,
    ends_tell_the_version_begun, entries_are_given_back_by_lines, entries_are_stored_by_lines,
    entries_found_were_there, entries_given_whole_were_finished, epochs_have_versions,
    halted_entries_were_given_up, hit_versions_were_printed, hits_are_of_lines,
    idle_workers_are_closed, keys_are_of_lines, lines_are_in_order, more_readers_come_from_others,
    other_urls_have_the_key, parts_are_not_short, quiet_lines_add_nothing, refusals_have_causes,
    runs_that_fit_lose_nothing, scripts_bound_what_is_offered, spent_numbers_have_bounds,
    tabs_stay_at_their_entries, versions_are_begun_by_one_line, versions_printed_alone_are_known,
};
pub use rules::closed_crews_keep_the_rules;
