// The slots of balance in the lent workspace: how an entry is added to its tuple's slot, and which slot refusal 18 names. A tuple's slot
// is searched along chains of slots with the same hash; the links stand in the spare bits of the width words.

#![tactic(auto)]

pub mod add;
pub mod decimal;
pub mod find;
pub mod group_refusal;
pub mod hash;
pub mod link;
pub mod slot;
pub mod slot_find;
