mod choosing;
mod folding;
mod keeping;
mod looking;
mod noting;
mod walking;
