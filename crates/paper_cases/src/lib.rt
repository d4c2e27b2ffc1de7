// Document 01's cases marked (P) are one table with one statement about it, in specs/Cases.antt; specs/Limit.antt tries both sides of the length limit,
// specs/DatCases.antt the cases of trace.dat, specs/ListingCases.antt whole listings. There is no code here.

#![tactic(auto)]
