// The definitions of the text of a job: bytes cut at separators, numbers, lists, and lines by their template (specs/). The code is in the crates
// numbers, template, line_reader, writer and line_writer.
#![tactic(auto)]
