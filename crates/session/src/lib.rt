// The definition of the printed session (specs/). The code is in the crates session_text and kundatrezo_print.
#![tactic(auto)]
