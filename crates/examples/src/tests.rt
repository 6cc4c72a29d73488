// Tests that run the code: each refusal at its edges, and the lines.
mod checks;
mod files;
mod store_answers;
mod texts;
