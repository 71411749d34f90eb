// What bytes a book has that says given contents: definitions and laws, and no function.
#![tactic(auto)]
