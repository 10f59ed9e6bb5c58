// The event of a text that is past answers 1 to 4: its definitions (specs/), as functions of the text's tree.
#![tactic(auto)]
