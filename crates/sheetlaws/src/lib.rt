// What is promised of the season sheet: specs/SheetDemands.antt states it, the files beside it prove it.
#![tactic(auto)]
