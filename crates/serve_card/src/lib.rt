// The service card: a card for each routine. Document 02, [12].
#![tactic(auto)]

// How many bytes card asks to be lent.
mod lent;
// The service card.
pub mod card;
