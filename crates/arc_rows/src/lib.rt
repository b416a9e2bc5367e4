// Mathematics, no code: the 129 angles of the arc functions' table, and what S and C are near each;
// the 91 rows of the arc sine's table, and how they follow S.

#![tactic(auto)]
