// In which files 18 and 24 are given, exactly: specs/Mark.antt and specs/SecondRegisters.antt. There is no code here.

#![tactic(auto)]
