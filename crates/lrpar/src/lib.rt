//! The library for users: parses over a grammar and its state table, from lexers and lexemes to values and errors. What a parse needs
//! is named here, with the laws of the crates below.
#![tactic(auto)]

mod storage_num;

pub use lrpar_diagnostics as diagnostics;
pub use lrpar_grammar::span::RIdx;
pub use lrpar_grammar::{grammar, lines};
pub use lrpar_parse::generictree::action_generictree;
pub use lrpar_parse::{RTParserBuilder, parser};
pub use lrpar_parse_errors::{LexParseError, ParseError, ParseRepair, errors};
pub use lrpar_parse_flat_trees::syntax_tree::SyntaxTree;
pub use lrpar_parse_lexemes::{
    InputLexer, LexError, Lexeme, Lexer, LexerTypes, NonStreamingLexer, lex_api,
};
pub use lrpar_parse_trees::Node;
pub use lrpar_table::check::ParserData;
pub use lrpar_table::{check, table};

/// `.y` files: the grammar of one, what it declares beside the grammar, and what can be wrong with it.
pub mod yacc {
    pub use lrpar_grammar_yacc::declarations::{Declarations, Level, Number, Prec};
    pub use lrpar_grammar_yacc::faults::{YaccFault, YaccText};
    pub use lrpar_grammar_yacc::file::{YaccFile, YaccFileFault};
    pub use lrpar_grammar_yacc::parts::YaccKind;
}

/// Precedences of tokens and productions, what they decide, and the levels or declarations that they are made of.
pub mod precedences {
    pub use lrpar_table_levels::{
        Level, PrecedenceFault, precedences_of_declarations, precedences_of_levels,
    };
    pub use lrpar_table_precedence::precedences::{AssocKind, Precedence, Precedences, Resolution};
}

/// Spans of a text, and the numbers of rules, productions, tokens and states.
pub mod span {
    pub use crate::storage_num::StorageNum;
    pub use lrpar_grammar::span::{
        Numbered, PIdx, RIdx, Span, Spanned, SpansKind, StIdx, StorageIndex, Symbol, TIdx,
    };
    pub use lrpar_grammar::text_range::TextRange;
}

/// Builders of tables: of a grammar alone, and with options.
pub mod build {
    pub use lrpar_table::build::{BuildFault, Unbuilt, from_yacc, parser_data};
    pub use lrpar_table_options::{Minimiser, TableOptions};
}

/// Recoverers: what a parse passes to one at an error point, the steps of the sequences that it returns, and the recoverers of the library.
pub mod repair {
    pub use lrpar_parse_completion::{Completion, NoCompletion, TableCompletion};
    pub use lrpar_parse_cpctplus::{CostFault, CpctPlus};
    pub use lrpar_parse_repair::or::Or;
    pub use lrpar_parse_repair::repair::{
        FixedRecoverer, NoRecovery, Recoverer, RecoveryPoint, RepairStep,
    };
    pub use lrpar_table_pops::check_completable::{Incompletable, check_completable};
}

/// What follows from the definitions: public functions that do nothing, each with a law as its contract.
pub mod laws {
    pub use lrpar_grammar::laws::{
        listings_keep_order, numbers_tell_productions_apart, parts_keep_texts, sum_is_worked_out,
        sum_tree_fits, text_spells_one_grammar, trees_are_derivations,
    };
    pub use lrpar_grammar_places::laws::{
        numbers_compare_by_value, spans_compare_by_ends, symbols_compare_by_contents,
        text_ranges_compare_by_ends,
    };
    pub use lrpar_grammar_words::laws::{
        outlines_are_of_grammar_texts, pieces_are_longest, text_has_one_outline,
        text_is_stuck_at_one_place, text_reads_as_one,
    };
    pub use lrpar_parse::every_text::{
        every_text_has_a_tree, every_text_has_a_value, every_text_has_a_value_or_an_error,
        every_text_has_an_acted_value, every_text_is_accepted,
    };
    pub use lrpar_parse::laws::{
        faults_are_compared_by_contents, or_has_one_answer, runs_go_on_or_end,
        runs_have_one_answer, runs_stop_by_failing, runs_with_repairs_are_sound,
        runs_with_repairs_have_one_answer, runs_without_a_recoverer,
        sequences_that_work_are_replayed, spans_are_worked_out, sum_run_is_worked_out,
        tests_of_sequences_are_bounded, values_fold_without_errors,
    };
    pub use lrpar_parse_completion::laws::{
        completions_always_repair, completions_always_repair_over_viable_tables,
        table_completions_always_repair,
    };
    pub use lrpar_parse_cpctplus::laws::{
        cheapest_repairs_are_paths, cheapest_repairs_have_one_answer, first_error_has_the_limit,
        last_steps_give_the_least_cost, no_sequence_is_cheaper_than_repairs,
        shares_are_within_the_total,
    };
    pub use lrpar_parse_lexemes::laws::{
        pp_faults_are_compared_by_contents, repairs_are_compared_by_contents,
    };
    pub use lrpar_parse_repair::laws::{or_repairs_where_one_does, steps_are_compared_by_contents};
    pub use lrpar_table::laws::{
        ambiguous_grammars_have_conflicts, built_tables_are_complete_without_conflicts,
        resolved_tables_are_incomplete,
    };
    pub use lrpar_table_build::laws::{
        canonical_conflicts_fit, canonical_tables_are_safe, no_conflicts_are_one_action,
        precedences_keep_apart, tables_by_precedence_are_safe,
    };
    pub use lrpar_table_check::laws::{
        complete_tables_accept_sentences, complete_tables_expect_sentences,
    };
    pub use lrpar_table_merge::laws::{
        built_by_tables_are_merged_by, built_tables_are_merged, canonical_sets_are_merged,
        canonical_sets_are_within_merged, merged_by_none_is_merged, merged_conflicts_by_fit,
        merged_conflicts_fit, merged_shift_conflicts_are_canonical,
        merged_tables_are_complete_without_conflicts, merged_tables_are_safe,
        merged_tables_are_viable, merged_tables_by_precedences_are_safe,
        merged_tables_by_precedences_are_viable, no_merged_conflicts_are_no_canonical,
        no_merged_conflicts_by_are_no_canonical,
    };
    pub use lrpar_table_pops::laws::pops_are_completions;
    pub use lrpar_table_rows::laws::{
        changed_sum_tables_are_unsafe, sum_graph_has_items, sum_rows_are_rows, sum_table_acts,
        sum_table_is_safe, sum_table_is_table,
    };
    pub use lrpar_table_stacks::laws::{
        checked_runs_never_stick, paths_are_stacks, reductions_are_bounded,
        reductions_have_one_answer, sum_table_has_chains, sum_table_has_path, sum_table_has_stack,
        sum_table_settles,
    };
}
