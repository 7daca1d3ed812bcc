// Laws of tests, and of effbd's bounded tests, searches and tables (specs/). There is no code here.
#![tactic(auto)]
