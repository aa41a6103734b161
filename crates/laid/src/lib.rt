// The layout of a sheet of nested tables, as theory: what it is, the relation of a laid sheet, and its laws.
#![tactic(auto)]
