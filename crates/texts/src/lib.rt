// Texts, read in one pass. The rooms, by what they read:
// bytes and lines   text_bytes, fills, phrases, reading, walks (lines), line_steps (a line), text_ends (the end)
// the frame         openings, rulers, rows, cell_texts, slots, shown_slots, head_lines
// field lines       labels, units, widths, width_trees, clause_trees, line_parts
// expressions       leaves, numbers, signs, atoms, stored_nodes, chains, stored_trees
// names             held_names, name_starts, name_clashes
// rules, records    kinds, part_tests, part_slots, line_rules, form_rules, part_records, line_counts,
//                   kept_fields
// what is kept      states, notes, held_areas
// texts in pieces   pieces, state_areas, state_numbers, state_counts, line_joins
// specs/ holds definitions that mirror what the code does, proofs/ the theorems on them.
#![tactic(auto)]

mod atoms;
mod cell_texts;
mod chains;
mod clause_trees;
mod fills;
mod form_rules;
mod head_lines;
mod held_areas;
mod held_names;
mod kept_fields;
mod kinds;
mod labels;
mod leaves;
mod line_counts;
mod line_joins;
mod line_parts;
mod line_rules;
mod line_steps;
mod name_clashes;
mod name_starts;
mod notes;
mod numbers;
mod openings;
mod part_records;
mod part_slots;
mod part_tests;
mod phrases;
pub mod pieces;
pub mod reading;
mod rows;
mod rulers;
mod shown_slots;
mod signs;
mod slots;
mod state_areas;
mod state_counts;
mod state_numbers;
mod states;
mod stored_nodes;
mod stored_trees;
mod text_bytes;
mod text_ends;
mod units;
mod walks;
mod width_trees;
mod widths;
