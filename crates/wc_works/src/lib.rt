//! The eleven works of a workspace: each gives the feature of one kind from those that it requires, by the crate of its
//! phase. After OTAWA 2010, whose processors provide and require features.
#![tactic(auto)]

mod bound_work;
mod bounds_work;
mod category_work;
mod cost_work;
mod graph_work;
mod handle;
mod lines_work;
mod may_work;
mod must_work;
mod nest_work;
mod optimum;
mod passing;
mod required;
mod shipping;
mod solution_work;
mod system_work;

pub use bound_work::BoundWork;
pub use bounds_work::BoundsWork;
pub use category_work::CategoryWork;
pub use cost_work::CostWork;
pub use graph_work::GraphWork;
pub use lines_work::LinesWork;
pub use may_work::MayWork;
pub use must_work::MustWork;
pub use nest_work::NestWork;
pub use optimum::{bound_of, solution_of};
pub use shipping::shipped;
pub use solution_work::SolutionWork;
pub use system_work::SystemWork;
pub use wc_core::Processor;
