// The values of a DAI by their code. Who calls rests on the rule, not on the tables.
ghost use Rattle.dai.specs.Tables.{FollowsRule};

// Table 9.1.3-1A: the counter where it has two values.
pub(crate) const OF_TWO: [u32; 2] = [1, 2];

// Table 9.1.3-1: the counter where it has four values, and the total.
pub(crate) const OF_FOUR: [u32; 4] = [1, 2, 3, 4];

// Both tables follow the rule.
#[tactic(auto, using(crate::proofs::Rule::ruled))]
pub fn tables_follow()
    ensures two { FollowsRule 2 OF_TWO }
    ensures four { FollowsRule 4 OF_FOUR }
{}
