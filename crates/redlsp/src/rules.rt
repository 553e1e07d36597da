//! What is asked of each service: every rule, but those that a file turns off by comments of its own, and so many refusals.
use mh_lint::Allowed;

pub const NONE_ALLOWED: Allowed = Allowed {
    editor_backup: false,
    identifier_differs: false,
    unknown_rule: false,
    start_leads_away: false,
    not_shared: false,
    no_actions: false,
    behind_transition: false,
    division_by_zero: false,
    negative_size: false,
    colour_octets: false,
    unheard_timer: false,
    locked_for_ever: false,
    unread_variable: false,
    no_interaction: false,
    off_screen: false,
    covers_no_cell: false,
    cut_text: false,
    text_in_its_colour: false,
    bare_line_feeds: false,
    named_alike: false,
    content_to_come: false,
};

/// How many refusals are told at most: as many as `redlook check` tells where it is not told how many.
pub const MOST_REFUSALS: usize = 20;
