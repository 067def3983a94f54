//! Laws about the definitions that contracts cite. Each function has such a law as its contract, and does nothing.
ghost use Rattle.std.specs.Prelude.{◌≡◌, ◌^◌, [], ◌∷◌};
ghost use Rattle.lrpar_grammar.specs.Sum.{sum_grammar};
ghost use Rattle.lrpar_table_rows.specs.Graph.{HasCore, HasItem, graph_len, item_at};
ghost use Rattle.lrpar_table_rows.specs.Rows.{AreRows, table_of};
ghost use Rattle.lrpar_table_rows.specs.Safe.{IsSafe, IsSafeAt};
ghost use Rattle.lrpar_table_rows.specs.Sum.{HasSumActions, HasSumGotos, sum_graph, sum_rows, sum_table, with_actions, with_bare_items, with_bare_state, with_gotos, with_item};
ghost use Rattle.lrpar_table_rows.specs.Table.{IsTable, ShiftTo, ReduceBy, Accepts, entries_len, states_len};
ghost use Rattle.lrpar_table_rows.specs.declared.condition.SafetyCondition.TheVariants.{S2, S3, S4, S5, S6, S7, S8};

/// The small table of sums is a table, so `from_sparse` takes it.
pub fn sum_table_is_table()
    ensures { IsTable (2 ^ 8) sum_table }
{}

/// The full rows of the small table are those of a table, so `from_rows` takes them; and the table of these rows is the small
/// table.
pub fn sum_rows_are_rows()
    ensures rows { AreRows (2 ^ 8) sum_rows }
    ensures table { table_of sum_rows ≡ sum_table }
{}

/// The actions and gotos of the small table of sums, at one entry of each kind and out of range.
pub fn sum_table_acts()
    ensures states { states_len sum_table ≡ 6 }
    ensures entries { entries_len sum_table ≡ 12 }
    ensures actions { HasSumActions sum_table }
    ensures gotos { HasSumGotos sum_table }
{}

/// Items and cores that states of the small table have: `E: T . '+' E {end}` in state 2, `T: . 'ID'` in state 4; and some
/// that they don't have, as the lookahead, the dot or the state is another.
pub fn sum_graph_has_items()
    ensures states { graph_len sum_graph ≡ 6 }
    ensures item { HasItem sum_graph 2 0 1 2 }
    ensures other_token { ¬ (HasItem sum_graph 2 0 1 0) }
    ensures core { HasCore sum_graph 4 2 0 }
    ensures other_dot { ¬ (HasCore sum_graph 4 2 1) }
    ensures no_state { ¬ (HasCore sum_graph 6 0 3) }
{}

/// The small table is safe with its item sets.
pub fn sum_table_is_safe()
    ensures { IsSafe sum_grammar sum_graph sum_table }
{}

/// The small table isn't safe once one thing of it is changed. Each condition fails for one change:
/// S2, as the start state has the item `^: E . {end}`; S3, as state 1 shifts the end token to a state 6 with no items; S4, as
/// state 0 shifts `ID` to state 5; S5, as state 2 reduces by `E: T '+' E`; S6, as state 4 has no goto by `T`; S7, as state 1
/// accepts at `+`; S8, as state 4 shifts `ID` to the start state.
pub fn changed_sum_tables_are_unsafe()
    ensures start_item { ¬ (IsSafeAt sum_grammar (with_item 0 (item_at 3 1 2)) sum_table S2 0) }
    ensures end_shift { ¬ (IsSafeAt sum_grammar with_bare_items (with_bare_state (with_actions 1 ((2, ShiftTo 6) ∷ []))) S3 1) }
    ensures other_shift { ¬ (IsSafeAt sum_grammar sum_graph (with_actions 0 ((1, ShiftTo 5) ∷ [])) S4 0) }
    ensures other_reduce { ¬ (IsSafeAt sum_grammar sum_graph (with_actions 2 ((0, ShiftTo 4) ∷ (2, ReduceBy 0) ∷ [])) S5 2) }
    ensures no_goto { ¬ (IsSafeAt sum_grammar sum_graph (with_gotos 4 ((1, 5) ∷ [])) S6 4) }
    ensures early_accept { ¬ (IsSafeAt sum_grammar sum_graph (with_actions 1 ((0, Accepts) ∷ (2, Accepts) ∷ [])) S7 1) }
    ensures back_to_start { ¬ (IsSafeAt sum_grammar sum_graph (with_actions 4 ((1, ShiftTo 0) ∷ [])) S8 4) }
{}
