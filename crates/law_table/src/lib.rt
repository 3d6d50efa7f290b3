// Laws about the bytes that stand for a table (crate table_record): when a record is exact (B13), what whole tables mean, and which
// methods a type has. No code.
#![tactic(auto)]
