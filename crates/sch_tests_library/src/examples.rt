//! The programs of examples/, run over memory. The source of each is as in its file.

use crate::program::check_rows;
use std::test::Fail;

const CLOSURES: &[u8] = br##"; Closures: each call of a maker has variables of its own.
(define (make-counter step)
  (let ((n 0))
    (lambda () (set! n (+ n step)) n)))
(define ones (make-counter 1))
(define tens (make-counter 10))
(ones)
(tens)
(let* ((a (ones)) (b (tens)) (c (ones)))
  (display (list a b c)))
(newline)
(define (compose-all fs)
  (if (null? fs)
      (lambda (x) x)
      (let ((f (car fs)) (g (compose-all (cdr fs))))
        (lambda (x) (f (g x))))))
(define (compose . fs) (compose-all fs))
(define (adder n) (lambda (m) (+ m n)))
(display ((compose (adder 1) (lambda (x) (* x x)) (adder 2)) 5))
(newline)
(define (account balance)
  (lambda (what amount)
    (case what
      ((deposit) (set! balance (+ balance amount)) balance)
      ((withdraw)
       (if (< balance amount)
           'refused
           (begin (set! balance (- balance amount)) balance)))
      (else 'unknown))))
(define mine (account 100))
(for-each
  (lambda (what amount) (write (mine what amount)) (newline))
  '(deposit withdraw withdraw close)
  '(20 50 500 0))
"##;

const COUNTERS: &[u8] =
    br##"; Two counters, each with a variable of its own. It prints 1, 2, 1, each on a line.
(define (make-counter)
  (let ((count 0))
    (lambda ()
      (set! count (+ count 1))
      count)))

(define first (make-counter))
(define second (make-counter))

(define (show n) (display n) (newline))

(show (first))
(show (first))
(show (second))
"##;

const FACTORIAL: &[u8] =
    br##"; The factorial of 19, the largest that is a fixnum: 121645100408832000. That of 20 ends with stop 70.
(define (factorial n)
  (if (= n 0)
      1
      (* n (factorial (- n 1)))))

(display (factorial 19))
(newline)
"##;

const INTERPRETER: &[u8] =
    br##"; An interpreter of a small Scheme, with its environments as lists of frames.
(define (lookup name env)
  (if (null? env)
      'unbound
      (let ((found (assq name (car env))))
        (if found (cdr found) (lookup name (cdr env))))))
(define (bind names values env)
  (cons (map cons names values) env))
(define (evaluate e env)
  (cond ((symbol? e) (lookup e env))
        ((pair? e)
         (case (car e)
           ((quote) (cadr e))
           ((if) (evaluate (if (evaluate (cadr e) env) (caddr e) (cadddr e)) env))
           ((lambda) (lambda (values) (evaluate (caddr e) (bind (cadr e) values env))))
           ((letrec)
            (let* ((binding (car (cadr e)))
                   (frame (list (cons (car binding) #f)))
                   (inner (cons frame env)))
              (set-cdr! (car frame) (evaluate (cadr binding) inner))
              (evaluate (caddr e) inner)))
           (else (use (evaluate (car e) env) (evaluate-each (cdr e) env)))))
        (else e)))
(define (evaluate-each es env)
  (if (null? es)
      '()
      (let ((first (evaluate (car es) env)))
        (cons first (evaluate-each (cdr es) env)))))
(define (use f values) (f values))
(define (of-two f) (lambda (values) (f (car values) (cadr values))))
(define globals
  (list (list (cons '+ (of-two +)) (cons '- (of-two -)) (cons '* (of-two *))
              (cons '= (of-two =)) (cons 'cons (of-two cons)))))
(define (run e)
  (write (evaluate e globals))
  (newline))
(run '((lambda (x y) (+ x (* y 2))) 3 4))
(run '(letrec ((fact (lambda (n) (if (= n 0) 1 (* n (fact (- n 1))))))) (fact 10)))
(run '(letrec ((count (lambda (n) (if (= n 0) '() (cons n (count (- n 1))))))) (count 5)))
(run '(if (= 1 2) 'same 'different))
"##;

const NUMBERS: &[u8] = br##"(display -42)
(newline)
"##;

const RECURSION: &[u8] = br##"; Recursion: a tree of calls, and a loop that is a tail call.
(define (fib n) (if (< n 2) n (+ (fib (- n 1)) (fib (- n 2)))))
(define (ackermann m n)
  (cond ((= m 0) (+ n 1))
        ((= n 0) (ackermann (- m 1) 1))
        (else (ackermann (- m 1) (ackermann m (- n 1))))))
(define (hanoi n from to by)
  (if (= n 0)
      0
      (+ (hanoi (- n 1) from by to) 1 (hanoi (- n 1) by to from))))
(define (collatz n steps)
  (if (= n 1)
      steps
      (collatz (if (even? n) (quotient n 2) (+ (* 3 n) 1)) (+ steps 1))))
(display (fib 15))
(newline)
(display (ackermann 2 3))
(newline)
(display (hanoi 6 'left 'right 'middle))
(newline)
(display (collatz 27 0))
(newline)
"##;

const SORTING: &[u8] = br##"; Two sorts: one of lists, by merging, and one of vectors, in place.
(define (merge a b before?)
  (cond ((null? a) b)
        ((null? b) a)
        ((before? (car b) (car a)) (cons (car b) (merge a (cdr b) before?)))
        (else (cons (car a) (merge (cdr a) b before?)))))
(define (split l)
  (if (or (null? l) (null? (cdr l)))
      (cons l '())
      (let ((rest (split (cdr (cdr l)))))
        (cons (cons (car l) (car rest)) (cons (cadr l) (cdr rest))))))
(define (sort l before?)
  (if (or (null? l) (null? (cdr l)))
      l
      (let ((halves (split l)))
        (merge (sort (car halves) before?) (sort (cdr halves) before?) before?))))
(define (swap! v i j)
  (let ((x (vector-ref v i)))
    (vector-set! v i (vector-ref v j))
    (vector-set! v j x)))
(define (insertion-sort! v)
  (do ((i 1 (+ i 1)))
      ((>= i (vector-length v)) v)
    (let loop ((j i))
      (if (and (> j 0) (< (vector-ref v j) (vector-ref v (- j 1))))
          (begin (swap! v j (- j 1)) (loop (- j 1)))))))
(write (sort '(3 1 4 1 5 9 2 6 5 3 5) <))
(newline)
(write (sort '("pear" "apple" "fig" "date") string<?))
(newline)
(write (insertion-sort! (vector 9 8 7 1 2 3 0)))
(newline)
"##;

const STRINGS: &[u8] = br##"; Strings: reversal, palindromes, and a cipher that moves letters.
(define (string-reverse s)
  (list->string (reverse (string->list s))))
(define (letters s)
  (let loop ((l (string->list s)) (kept '()))
    (cond ((null? l) (list->string (reverse kept)))
          ((char-alphabetic? (car l)) (loop (cdr l) (cons (char-downcase (car l)) kept)))
          (else (loop (cdr l) kept)))))
(define (palindrome? s)
  (string=? (letters s) (string-reverse (letters s))))
(define (rotate c by)
  (if (char-alphabetic? c)
      (let ((first (char->integer (if (char-upper-case? c) #\A #\a))))
        (integer->char (+ first (modulo (+ (- (char->integer c) first) by) 26))))
      c))
(define (cipher s by)
  (list->string (map (lambda (c) (rotate c by)) (string->list s))))
(write (string-reverse "Scheme"))
(newline)
(write (palindrome? "A man, a plan, a canal: Panama"))
(newline)
(write (cipher "Hello, World" 13))
(newline)
(write (cipher (cipher "Hello, World" 13) 13))
(newline)
(write (string-append (number->string 12) "-" (symbol->string 'abc)))
(newline)
"##;

const DERIVATIVES: &[u8] = br##"; Derivatives of sums and products of numbers and variables.
(define (derive e x)
  (cond ((number? e) 0)
        ((symbol? e) (if (eq? e x) 1 0))
        ((eq? (car e) '+) (sum (derive (cadr e) x) (derive (caddr e) x)))
        (else (sum (product (cadr e) (derive (caddr e) x))
                   (product (derive (cadr e) x) (caddr e))))))
(define (sum a b)
  (cond ((eqv? a 0) b)
        ((eqv? b 0) a)
        (else (list '+ a b))))
(define (product a b)
  (cond ((eqv? a 0) 0)
        ((eqv? a 1) b)
        ((eqv? b 1) a)
        (else (list '* a b))))
; a power of x, and so often the derivative of one
(define (power x n)
  (if (= n 0) 1 (product x (power x (- n 1)))))
(define (derive-often e x n)
  (if (= n 0) e (derive-often (derive e x) x (- n 1))))
(write (derive '(+ (* x x) (* 3 y)) 'x))
(newline)
(write (derive (power 'x 3) 'x))
(newline)
(define (size e) (if (pair? e) (+ (size (car e)) (size (cdr e))) 1))
(display (size (derive-often (power 'x 6) 'x 3)))
(newline)
"##;

const FIB: &[u8] = br##"; The Fibonacci numbers, by two calls for each.
(define (fib n)
  (if (< n 2)
      n
      (+ (fib (- n 1)) (fib (- n 2)))))
(display (fib 18))
(newline)
"##;

const QUEENS: &[u8] =
    br##"; In how many ways do n queens stand on a board of n rows, none of which attacks another? A board is the list of the columns of
; its queens, the last row first.
(define (attacks? column distance board)
  (if (null? board)
      #f
      (let ((other (car board)))
        (or (= other column)
            (= (abs (- other column)) distance)
            (attacks? column (+ distance 1) (cdr board))))))
(define (place rows column n board)
  (cond ((= rows 0) 1)
        ((> column n) 0)
        ((attacks? column 1 board) (place rows (+ column 1) n board))
        (else (+ (place (- rows 1) 1 n (cons column board))
                 (place rows (+ column 1) n board)))))
(define (queens n) (place n 1 n '()))
(display (map queens '(1 2 3 4 5 6)))
(newline)
"##;

const TAK: &[u8] = br##"; Takeuchi's procedure: calls of which three are operands of a fourth.
(define (tak x y z)
  (if (< y x)
      (tak (tak (- x 1) y z) (tak (- y 1) z x) (tak (- z 1) x y))
      z))
(display (tak 12 8 4))
(newline)
"##;

/// Each program with what it prints.
const PROGRAMS: &[(&[u8], &[u8])] = &[
    (CLOSURES, b"(2 20 3)\n50\n120\n70\nrefused\nunknown\n"),
    (COUNTERS, b"1\n2\n1\n"),
    (FACTORIAL, b"121645100408832000\n"),
    (NUMBERS, b"-42\n"),
    (RECURSION, b"610\n9\n63\n111\n"),
    (INTERPRETER, b"11\n3628800\n(5 4 3 2 1)\ndifferent\n"),
    (
        SORTING,
        b"(1 1 2 3 3 4 5 5 5 6 9)\n(\"apple\" \"date\" \"fig\" \"pear\")\n#(0 1 2 3 7 8 9)\n",
    ),
    (
        STRINGS,
        b"\"emehcS\"\n#t\n\"Uryyb, Jbeyq\"\n\"Hello, World\"\n\"12-abc\"\n",
    ),
    (
        DERIVATIVES,
        b"(+ (+ x x) (* 3 0))\n(+ (* x (+ x x)) (* x x))\n589\n",
    ),
    (FIB, b"2584\n"),
    (QUEENS, b"(1 0 0 2 10 4)\n"),
    (TAK, b"5\n"),
];

#[test]
fn programs_print(rt: HostRuntime) -> Result<(), Fail> {
    check_rows(rt.alloc(), PROGRAMS)
}
