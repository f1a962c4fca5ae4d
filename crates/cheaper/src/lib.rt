// The cheaper of document 01's two eliminations.
// both: both of them as one service, the flags that the cheaper leaves, and the part that is shown of it.
// left: what the cheaper leaves, as a service.
#![tactic(auto)]

pub mod both;
pub mod left;
