//! Why the game decides the notions: laws over the definitions, as functions with empty bodies.
#![tactic(auto)]

mod generations;
mod notions;
mod pairs;
mod prices;
mod steps;
mod systems;

pub use generations::{
    late_generations_are_exact, late_generations_stay, marks_are_by_change,
    next_rows_are_generations, parts_are_low, prices_stand_on_a_floor, rounds_are_generations,
    rows_are_by_place, rows_list_the_generation, settled_generations_are_exact,
    solved_rows_afford_their_prices, unmarked_pairs_keep_their_lists,
};
pub use notions::{
    first_within_is_shown, least_prices_are_one, least_prices_are_reached, least_prices_exist,
    notions_hold_by_least_prices, smaller_bounds_hold_more,
};
pub use pairs::{
    divisions_are_by_mask, followers_are_by_case, fronts_are_no_larger,
    pairs_are_at_most_half_the_size, pairs_are_put_last, pairs_have_at_most_all_positions,
    pairs_have_positions_by_their_members, pairs_without_repeats_stay,
    parts_are_fewer_than_the_size, putting_last_goes_on, reached_fronts_are_fronts,
    reached_pairs_are_closed, reached_pairs_are_one, reached_pairs_exist, reaching_begins,
    reaching_ends, reaching_goes_on, same_pairs_are_equal, sets_have_at_most_nineteen_members,
    sizes_add_up,
};
pub use prices::{
    inverses_are_least, minimal_elements_are_by_cover, minimal_elements_are_minimal,
    minimal_elements_are_one, minimal_elements_grow, others_are_no_deeper,
    unit_weights_change_nothing,
};
pub use steps::{
    backward_steps_are_sound, backward_steps_cover_what_is_afforded,
    backward_steps_read_the_followers, observations_are_exact, self_covering_tables_are_complete,
    self_covering_tables_are_exact, splits_are_exact, wins_are_afforded,
};
pub use systems::{labels_from_are_those_of_the_steps, post_has_the_successors};
