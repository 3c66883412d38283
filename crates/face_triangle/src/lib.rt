// Triangles of points by their numbers. Definitions only.

#![tactic(auto)]
