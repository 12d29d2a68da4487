// The definitions of the stream of words that a seed gives (specs/): Marsaglia's 64-bit xorshift (document 02, note 7). The same seed gives the same
// words on every machine, so that two users can draw alike. The code is in the crate seed_words.
#![tactic(auto)]
