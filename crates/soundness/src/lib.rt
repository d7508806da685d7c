//! What an auditor reads: what each reply of the calculator says of the points for which the names
//! stand, and what each command makes of them. [docs/AUDIT.md] has the reading order.
#![tactic(auto)]
