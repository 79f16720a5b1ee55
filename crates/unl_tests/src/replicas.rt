//! Tests of what readers see of published values and boards: readers that learn from the writer's report how many
//! changes are published, and readers in their own threads that run concurrently with a writer.
mod edge_state;
mod published;
